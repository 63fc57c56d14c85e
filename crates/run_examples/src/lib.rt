//! Runs that happen, worked out: so the laws of all runs speak of something.
//!
//! `specs/Copied.antt` says what happens in one, and `specs/Stepped.antt` in one that is made of steps of a hub and its
//! leaf. There is no code here but the laws.
#![tactic(auto)]

pub mod laws;
