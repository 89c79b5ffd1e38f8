#![tactic(auto)]

// Laws about the rules: no code.
