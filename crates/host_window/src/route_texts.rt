//! Requests and times to answer, by route, as Prometheus reads them.
ghost use Rattle.std.specs.Prelude.{◌≡◌, ◌++◌, OnOk};
ghost use Rattle.host_window.specs.Routes.{bucket_text, buckets_text, family_text, label_text, routes_text, spent_text};
ghost use Rattle.host_window.specs.Routes.{times_text, value_text};

use crate::counts::Counts;
use crate::family::{Head, Kind, push_head, push_table};
use itoa::Buffer;
use std::alloc::AllocError;

/// How many requests of a route were carried out within a time.
#[derive(Clone, Copy, PartialEq, Eq)]
pub struct Bucket {
    /// The route's name.
    pub route: &'static [u8],
    /// The seconds, as a text.
    pub bound: &'static [u8],
    pub done: u64,
}

/// How long the requests of a route took.
#[derive(Clone, Copy, PartialEq, Eq)]
pub struct RouteTime {
    /// The route's name.
    pub route: &'static [u8],
    /// The requests that were carried out.
    pub done: u64,
    /// Their times together, in nanoseconds.
    pub nanoseconds: u64,
}

// A label between two texts.
#[tactic(auto, unfolding(crate::specs::Routes::label_text))]
fn push_label(text: &mut Vec<u8>, front: &[u8], label: &[u8], back: &[u8]) -> Result<(), AllocError>
    ensures { OnOk result (text.new.items ≡ text.old.items ++ label_text front.now label.now back.now) }
{
    text.extend_from_slice(front)?;
    text.extend_from_slice(label)?;
    text.extend_from_slice(back)
}

// A number before a text.
#[tactic(auto, unfolding(crate::specs::Routes::value_text))]
fn push_value(text: &mut Vec<u8>, value: u64, back: &[u8]) -> Result<(), AllocError>
    ensures { OnOk result (text.new.items ≡ text.old.items ++ value_text value back.now) }
{
    text.extend_from_slice(Buffer::new().format(value).as_bytes())?;
    text.extend_from_slice(back)
}

// The line of a bucket.
fn push_bucket(text: &mut Vec<u8>, bucket: &Bucket) -> Result<(), AllocError>
    ensures { OnOk result (text.new.items ≡ text.old.items ++ bucket_text bucket.now) }
{
    push_label(
        text,
        b"sumacgate_answer_seconds_bucket{route=\"",
        bucket.route,
        b"\",le=\"",
    )?;
    push_label(text, b"", bucket.bound, b"\"} ")?;
    push_value(text, bucket.done, b"\n")
}

// The two lines with the time of a route's requests, and with their number.
fn push_spent(text: &mut Vec<u8>, time: &RouteTime) -> Result<(), AllocError>
    ensures { OnOk result (text.new.items ≡ text.old.items ++ spent_text time.now) }
{
    push_label(
        text,
        b"sumacgate_answer_seconds_sum{route=\"",
        time.route,
        b"\"} ",
    )?;
    push_value(text, time.nanoseconds, b"e-9\n")?;
    push_label(
        text,
        b"sumacgate_answer_seconds_count{route=\"",
        time.route,
        b"\"} ",
    )?;
    push_value(text, time.done, b"\n")
}

// The lines of these buckets.
fn push_buckets(text: &mut Vec<u8>, buckets: &[Bucket]) -> Result<(), AllocError>
    ensures { OnOk result (text.new.items ≡ text.old.items ++ buckets_text buckets.now) }
{
    for bucket in buckets {
        push_bucket(text, bucket)?;
    }
    Ok(())
}

// The lines with these times.
fn push_times(text: &mut Vec<u8>, times: &[RouteTime]) -> Result<(), AllocError>
    ensures { OnOk result (text.new.items ≡ text.old.items ++ times_text times.now) }
{
    for time in times {
        push_spent(text, time)?;
    }
    Ok(())
}

// The family of times.
fn push_family(
    text: &mut Vec<u8>,
    buckets: &[Bucket],
    times: &[RouteTime],
) -> Result<(), AllocError>
    ensures { OnOk result (text.new.items ≡ text.old.items ++ family_text buckets.now times.now) }
{
    push_head(
        text,
        Head {
            name: b"sumacgate_answer_seconds",
            help: b"Time from a request's route to its answer, by route.",
            kind: Kind::Histogram,
        },
    )?;
    push_buckets(text, buckets)?;
    push_times(text, times)
}

/// What is shown of routes.
pub(crate) fn push_routes(text: &mut Vec<u8>, counts: &Counts) -> Result<(), AllocError>
    ensures { OnOk result (text.new.items ≡ text.old.items ++ routes_text counts.now) }
{
    push_table(
        text,
        Head {
            name: b"sumacgate_requests_total",
            help: b"Requests that have a route, by route.",
            kind: Kind::Counter,
        },
        counts.requests.as_slice(),
    )?;
    push_family(text, counts.buckets.as_slice(), counts.times.as_slice())
}
