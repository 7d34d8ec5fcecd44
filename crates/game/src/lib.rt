// No code: this crate holds the definitions that every other crate's contracts cite, and their laws.
#![tactic(auto)]
