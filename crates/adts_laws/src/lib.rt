// Laws of ADTS frames alone: no byte outside a frame counts, and wrapping, unwrapping and reading undo each other.
#![tactic(auto)]
