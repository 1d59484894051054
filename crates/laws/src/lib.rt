// Laws that know no chess, for every proof above to cite. Definitions in specs/, laws in proofs/; no code.
#![tactic(auto)]
