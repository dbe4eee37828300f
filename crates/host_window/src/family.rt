//! A family of numbers, as Prometheus reads it.
ghost use Rattle.std.specs.Prelude.{◌≡◌, ◌++◌, OnOk};
ghost use Rattle.host_window.specs.Texts.{head_text, kind_text, line_text, number_text, one_text, said_head};
ghost use Rattle.host_window.specs.Texts.{samples_text, table_text};

use itoa::Buffer;
use std::alloc::AllocError;

/// Whether a number only rises, until the process ends, or also falls.
#[derive(Clone, Copy, PartialEq, Eq)]
pub enum Kind {
    Counter,
    Gauge,
    /// A number of measured values within each of some bounds, with their sum.
    Histogram,
}

/// A number with its labels: an empty text, or all labels in one pair of braces.
#[derive(Clone, Copy, PartialEq, Eq)]
pub struct Sample {
    pub labels: &'static [u8],
    pub value: u64,
}

/// What a family of numbers is.
#[derive(Clone, Copy)]
pub struct Head {
    pub name: &'static [u8],
    /// What they are, in one line.
    pub help: &'static [u8],
    pub kind: Kind,
}

impl Kind {
    // The word for it.
    fn text(self) -> &'static [u8]
        ensures { result.now ≡ kind_text self }
    {
        match self {
            Kind::Counter => b"counter",
            Kind::Gauge => b"gauge",
            Kind::Histogram => b"histogram",
        }
    }
}

/// Adds one line with a number.
pub(crate) fn push_number(
    text: &mut Vec<u8>,
    name: &[u8],
    labels: &[u8],
    value: u64,
) -> Result<(), AllocError>
    ensures { OnOk result (text.new.items ≡ text.old.items ++ number_text name.now labels.now value) }
{
    text.extend_from_slice(name)?;
    text.extend_from_slice(labels)?;
    text.extend_from_slice(b" ")?;
    text.extend_from_slice(Buffer::new().format(value).as_bytes())?;
    text.extend_from_slice(b"\n")
}

// The lines of these numbers.
fn push_samples(text: &mut Vec<u8>, name: &[u8], samples: &[Sample]) -> Result<(), AllocError>
    ensures { OnOk result (text.new.items ≡ text.old.items ++ samples_text name.now samples.now) }
{
    for sample in samples {
        push_number(text, name, sample.labels, sample.value)?;
    }
    Ok(())
}

// A line about a name: what it says of it, the name, and more.
fn push_line(text: &mut Vec<u8>, front: &[u8], name: &[u8], more: &[u8]) -> Result<(), AllocError>
    ensures { OnOk result (text.new.items ≡ text.old.items ++ line_text front.now name.now more.now) }
{
    text.extend_from_slice(front)?;
    text.extend_from_slice(name)?;
    text.extend_from_slice(b" ")?;
    text.extend_from_slice(more)?;
    text.extend_from_slice(b"\n")
}

/// Adds the two lines before the numbers of a family.
pub(crate) fn push_head(text: &mut Vec<u8>, head: Head) -> Result<(), AllocError>
    ensures { OnOk result (text.new.items ≡ text.old.items ++ head_text (said_head head)) }
{
    push_line(text, b"# HELP ", head.name, head.help)?;
    push_line(text, b"# TYPE ", head.name, head.kind.text())
}

/// Adds the text of a family of one number.
#[tactic(auto, unfolding(crate::specs::Texts::one_text))]
pub(crate) fn push_one(text: &mut Vec<u8>, head: Head, value: u64) -> Result<(), AllocError>
    ensures { OnOk result (text.new.items ≡ text.old.items ++ one_text (said_head head) value) }
{
    push_head(text, head)?;
    push_number(text, head.name, b"", value)
}

/// Adds the text of a family with labels.
#[tactic(auto, unfolding(crate::specs::Texts::table_text))]
pub(crate) fn push_table(
    text: &mut Vec<u8>,
    head: Head,
    samples: &[Sample],
) -> Result<(), AllocError>
    ensures { OnOk result (text.new.items ≡ text.old.items ++ table_text (said_head head) samples.now) }
{
    push_head(text, head)?;
    push_samples(text, head.name, samples)
}
