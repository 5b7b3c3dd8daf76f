// What is right of numbers and PDU bytes: document 01's "Numbers" and "PDU bytes (727)" as definitions (specs/), and the laws that they obey. No code runs here.
#![tactic(auto)]
