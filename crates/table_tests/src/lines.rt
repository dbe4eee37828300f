// Tables as texts: a line for each case, with columns that a blank parts.
use std::process::Abort;

/// The first columns of a line, empty where it has fewer.
pub fn columns(line: &str) -> [&str; 9] {
    let mut columns = [""; 9];
    for (number, word) in line.split(' ').enumerate() {
        if number < 9 {
            columns[number] = word;
        }
    }
    columns
}

pub fn byte(rt: &impl Abort, text: &str) -> u8 {
    text.parse::<u8>().expect(rt, "a byte")
}

pub fn number(rt: &impl Abort, text: &str) -> u32 {
    text.parse::<u32>().expect(rt, "a number")
}

pub fn word(rt: &impl Abort, text: &str) -> u64 {
    text.parse::<u64>().expect(rt, "a word")
}

pub fn amount(rt: &impl Abort, text: &str) -> i64 {
    text.parse::<i64>().expect(rt, "an amount")
}
