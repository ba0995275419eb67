// Document 01's checked examples P1 to P9: the statement stands in specs/, its proof in proofs/. There is no code.

#![tactic(auto)]
