// Laws of stereo payloads alone: what is accepted leaves a sound state, and a restart is read alike from every state.
#![tactic(auto)]
