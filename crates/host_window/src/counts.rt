// What is counted of a host.
use crate::family::Sample;
use crate::route_texts::{Bucket, RouteTime};

/// What a host has done until now, and what it does now.
#[derive(Drop)]
pub struct Counts {
    /// 1 where the host takes connections, and 0 where it doesn't yet or doesn't any more.
    pub healthy: u64,
    /// How many workers there are.
    pub workers: u64,
    /// How many of them have a connection.
    pub busy: u64,
    /// Connections taken.
    pub taken: u64,
    /// Connections ended, by cause.
    pub ended: Vec<Sample>,
    /// Writes that failed.
    pub unwritten: u64,
    /// Bytes received.
    pub received: u64,
    /// Bytes written.
    pub sent: u64,
    /// Answers by status.
    pub answers: Vec<Sample>,
    /// Problems by code.
    pub problems: Vec<Sample>,
    /// Requests by route.
    pub requests: Vec<Sample>,
    /// For each route and bound how many requests were carried out within it.
    pub buckets: Vec<Bucket>,
    /// For each route how long its requests took.
    pub times: Vec<RouteTime>,
    /// Sweeps that were due.
    pub sweeps: u64,
    /// Pieces of the journal that are kept.
    pub cuts: u64,
    /// Bytes of the journal that were written and kept.
    pub kept: u64,
    /// Times that the whole journal was written anew.
    pub rewrites: u64,
    /// When the write of the journal began that is under way, in seconds since 1970; 0 where none is.
    pub writing: u64,
    /// 1 where the journal is lost, and 0 where it isn't, or where there is none.
    pub lost: u64,
}
