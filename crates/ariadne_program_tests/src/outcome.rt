//! What runs of the programs came to, and how it is compared.

use crate::comparing::assert_same_of;
use ariadne_testing::was_refused;
use std::fmt::Debug;
use std::process::Abort;

/// What a run returned, and what its writers took.
#[derive(Drop)]
pub struct Outcome {
    /// The request for memory that was refused, counted from 1, or 0 where there was none.
    pub nth: usize,
    /// The exit status.
    pub status: u8,
    pub out: Vec<u8>,
    pub faults: Vec<u8>,
}

/// Asserts that what was found where the nth request was refused is what is wanted.
pub fn assert_same_at<T: Debug + PartialEq>(rt: &impl Abort, nth: usize, found: &T, wanted: &T) {
    assert_same_of(rt, "a request", &(nth, found), &(nth, wanted))
}

impl Outcome {
    /// Asserts what the run returned.
    pub fn assert_status(&self, rt: &impl Abort, status: u8) {
        assert_same_at(rt, self.nth, &self.status, &status)
    }

    /// Asserts what the run returned, and what it told of faults.
    pub fn assert_told(&self, rt: &impl Abort, status: u8, faults: &[u8]) {
        self.assert_status(rt, status);
        assert_same_at(rt, self.nth, &self.faults.as_slice(), &faults)
    }

    /// Asserts what the run returned, and what its writers took.
    pub fn assert_is(&self, rt: &impl Abort, status: u8, out: &[u8], faults: &[u8]) {
        self.assert_told(rt, status, faults);
        assert_same_at(rt, self.nth, &self.out.as_slice(), &out)
    }
}

/// Asserts that a call failed exactly where the nth request for memory was refused, and returns whether
/// it was served.
pub fn is_served(rt: &(impl AllocGlobal + Abort), nth: usize, is_ok: bool) -> bool {
    let is_served = !was_refused(rt.alloc());
    assert_same_at(rt, nth, &is_ok, &is_served);
    is_served
}
