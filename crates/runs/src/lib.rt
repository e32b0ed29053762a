// Runs of payloads and reports: definitions and laws alone.
#![tactic(auto)]
