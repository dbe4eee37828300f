ghost use Rattle.std.specs.Prelude.{◌≡◌, ◌≢◌, ℕ, ◌<◌, ◌^◌, IfSome, IfNone};
ghost use Rattle.history_model.specs.Phase.{word_of_phase, row_word_of as spec_row_word_of, phase_shown as spec_phase_shown, is_turn as spec_is_turn};
ghost use Rattle.history_model.specs.Allows.{IsNoRowWord};
ghost use Rattle.history_model.specs.Booking.{amount_word};
ghost use Rattle.history_model.specs.declared.phase.Phase.{Phase};

/// How many numbers word 0 of a row has for each generation.
const GENERATION_WORDS: u64 = 16;

/// How a booking ends: released or expired before it was confirmed, refunded or exchanged after.
#[derive(Clone, Copy, Debug, PartialEq, Eq)]
pub enum EndKind {
    Release,
    Expire,
    Refund,
    Exchange,
}

/// How far a booking has come. It goes forward only, from free to ended, and may leave out phases.
#[derive(Clone, Copy, Debug, PartialEq, Eq)]
pub enum Phase {
    Free,
    Making,
    Prebooked,
    Confirmed,
    Fulfilled,
    Ending(EndKind),
    Ended(EndKind),
}

/// The word of a phase, which is word 0 of its row in generation 0.
pub fn phase_word(phase: Phase) -> u64
    ensures { result ≡ word_of_phase phase }
{
    match phase {
        Phase::Free => 0,
        Phase::Making => 1,
        Phase::Prebooked => 2,
        Phase::Confirmed => 3,
        Phase::Fulfilled => 4,
        Phase::Ending(EndKind::Release) => 5,
        Phase::Ending(EndKind::Expire) => 6,
        Phase::Ending(EndKind::Refund) => 7,
        Phase::Ending(EndKind::Exchange) => 8,
        Phase::Ended(EndKind::Release) => 9,
        Phase::Ended(EndKind::Expire) => 10,
        Phase::Ended(EndKind::Refund) => 11,
        Phase::Ended(EndKind::Exchange) => 12,
    }
}

/// The phase of a word: `None` exactly where it is no phase's.
pub fn phase_of(word: u64) -> Option<Phase>
    ensures found { IfSome result (λ phase. word_of_phase phase ≡ word) }
    ensures none { IfNone result ((phase : Phase) → word_of_phase phase ≢ word) }
{
    match word {
        0 => Some(Phase::Free),
        1 => Some(Phase::Making),
        2 => Some(Phase::Prebooked),
        3 => Some(Phase::Confirmed),
        4 => Some(Phase::Fulfilled),
        5 => Some(Phase::Ending(EndKind::Release)),
        6 => Some(Phase::Ending(EndKind::Expire)),
        7 => Some(Phase::Ending(EndKind::Refund)),
        8 => Some(Phase::Ending(EndKind::Exchange)),
        9 => Some(Phase::Ended(EndKind::Release)),
        10 => Some(Phase::Ended(EndKind::Expire)),
        11 => Some(Phase::Ended(EndKind::Refund)),
        12 => Some(Phase::Ended(EndKind::Exchange)),
        _ => None,
    }
}

/// Word 0 of a row whose booking is in this phase and of this generation.
pub fn row_word_of(phase: Phase, generation: u32) -> u64
    ensures { result ≡ spec_row_word_of phase generation }
{
    phase_word(phase) + GENERATION_WORDS * u64::from(generation)
}

/// The phase and the generation that word 0 of a row says: `None` exactly where it is no phase's of any generation.
pub fn read_row_word(word: u64) -> Option<(Phase, u32)>
    ensures found { IfSome result (λ r. spec_row_word_of r.0 r.1 ≡ word) }
    ensures none { IfNone result (IsNoRowWord word) }
{
    let phase = phase_of(word % GENERATION_WORDS)?;
    let generation = u32::try_from(word / GENERATION_WORDS).ok()?;
    Some((phase, generation))
}

/// The phase that word 0 of a row shows a booking of this generation: `Free` where it is of another, or no phase's.
pub fn phase_shown(word: u64, generation: u32) -> Phase
    ensures { result ≡ spec_phase_shown generation word }
{
    if word / GENERATION_WORDS != u64::from(generation) {
        return Phase::Free;
    }
    match phase_of(word % GENERATION_WORDS) {
        Some(phase) => phase,
        None => Phase::Free,
    }
}

/// Whether there is a turn from the one phase to the other: confirm, fulfil, release, expire, refund or exchange.
pub fn is_turn(from: Phase, to: Phase) -> bool
    ensures { result ≡ spec_is_turn from to }
{
    match from {
        Phase::Prebooked => matches!(
            to,
            Phase::Confirmed | Phase::Ending(EndKind::Release) | Phase::Ending(EndKind::Expire)
        ),
        Phase::Confirmed => matches!(
            to,
            Phase::Fulfilled | Phase::Ending(EndKind::Refund) | Phase::Ending(EndKind::Exchange)
        ),
        Phase::Fulfilled => matches!(
            to,
            Phase::Ending(EndKind::Refund) | Phase::Ending(EndKind::Exchange)
        ),
        _ => false,
    }
}

/// The amount of an end as word 6 of a row: of a refund what is paid back, of an exchange twice the difference, or
/// twice its size less 1 where it is negative, and else 0.
pub fn amount_word_of(kind: EndKind, amount: i64) -> u64
    ensures { result ≡ amount_word kind amount }
{
    match kind {
        EndKind::Release => 0,
        EndKind::Expire => 0,
        EndKind::Refund => { if amount >= 0 { amount as u64 } else { 0 } }
        EndKind::Exchange => {
            if amount >= 0 {
                2 * (amount as u64)
            } else {
                2 * ((-(amount + 1)) as u64) + 1
            }
        }
    }
}
