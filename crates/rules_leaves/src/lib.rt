// What is right where document 01 takes it from others: UTF-8 by RFC 3629, the checksums and CRC-16, in specs/, with the laws that they obey. A part
// of `rules` that stands alone, because it needs nothing of CFDP; no code runs here.
#![tactic(auto)]
