//! Document 01's figures P1 to P12, proved as one table over the definitions of the calls: specs/Table.antt. Files of up to 2^40 bytes, apart from these: specs/LongFiles.antt.
#![tactic(auto)]
