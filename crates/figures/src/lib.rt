// Document 01's figures as one checked collection: the statements are in specs/Figures.antt, the joint theorem in proofs/DocumentFigures.antt. There is
// no code here: the figures are about the definitions that the calls of the other crates are proved to meet.
#![tactic(auto)]
