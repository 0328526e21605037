//! Worked pictures: what the definitions of a picture say, by computed examples. The theorems are in `proofs/`;
//! there is no code.
//!
//! Some theorems give the bytes of a report's picture, with rows from outside. Others have pictures, row numbers
//! and results that are wrong in one respect, and name the sentence that refuses them. No crate depends on this
//! one, so callers of `ariadne` don't prove it.
#![tactic(auto)]
