// Laws of quorums over any monotone satisfaction: this crate has no code, and knows nothing of tables.
#![tactic(auto)]
