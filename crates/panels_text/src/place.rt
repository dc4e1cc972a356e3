//! Where a bench says something.

ghost use Rattle.std.specs.Prelude.{◌≡◌, ◌≤◌, ◌+◌, drop, length, slice_get, take};
ghost use Rattle.panels_text.specs.Places.{begins_table, count_breaks, has_key, heads_from, is_head, key_line, line_at, line_of};
ghost use Rattle.panels_text.specs.Texts.{lines_of};

use crate::texts::{before, behind};

/// Whether a table begins with a line.
fn begins_table(line: &str) -> bool
    ensures { result ≡ begins_table line.now }
{
    line.trim().starts_with("[")
}

/// Whether a line is the head of an entry of an array of tables: its name between double brackets.
fn is_head(line: &str, array: &str) -> bool
    ensures { result ≡ is_head array.now line.now }
{
    let Some(rest) = behind(line.trim(), "[[") else {
        return false;
    };
    match before(rest, "]]") {
        Some(name) => name.trim() == array,
        None => false,
    }
}

/// Whether a line begins with a key and its equals sign.
fn has_key(line: &str, key: &str) -> bool
    ensures { result ≡ has_key key.now line.now }
{
    match behind(line.trim(), key) {
        Some(rest) => rest.trim().starts_with("="),
        None => false,
    }
}

/// The line of the head of an entry, counted from 1.
fn head_at(bench: &str, array: &str, index: usize) -> Option<usize>
    ensures { result ≡ slice_get (heads_from 1 array.now (lines_of bench.now)) index }
{
    let _short = bench.len();
    let mut number = 0usize;
    let mut left = index;
    for line in bench.split('\n') {
        number = number.saturating_add(1);
        if is_head(line, array) {
            if left == 0 {
                return Some(number);
            }
            left = left.saturating_sub(1);
        }
    }
    None
}

/// The line of a key of the table whose head is in this line, 0 for the bench itself; the head's where none has it.
fn key_line(bench: &str, head: usize, key: &str) -> usize
    ensures { result ≡ key_line head (head + 1) key.now (drop head (lines_of bench.now)) }
{
    let _short = bench.len();
    let mut number = head;
    for line in bench.split('\n').skip(head) {
        if begins_table(line) {
            return head;
        }
        number = number.saturating_add(1);
        if has_key(line, key) {
            return number;
        }
    }
    head
}

/// The line of a bench, counted from 1, that has a key of an entry: of the array of tables of this name, the one of this number, from 0 on, or
/// of the bench itself for the empty name. The line of the entry's head where none has the key; 0 where there is no such entry.
pub fn line_of(bench: &str, array: &str, index: usize, key: &str) -> usize
    ensures { result ≡ line_of bench.now array.now index key.now }
{
    if array.is_empty() {
        return key_line(bench, 0, key);
    }
    match head_at(bench, array, index) {
        Some(head) => key_line(bench, head, key),
        None => 0,
    }
}

/// How many lines end in a text.
pub(crate) fn count_breaks(bytes: &[u8]) -> usize
    ensures breaks { result ≡ count_breaks bytes.now }
    ensures most { result ≤ length bytes.now }
{
    bytes.iter().filter(|byte| **byte == b'\n').count()
}

/// What stands before a byte.
fn front(bytes: &[u8], byte: usize) -> &[u8]
    ensures { result.now ≡ take byte bytes.now }
{
    match bytes.get(..byte) {
        Some(front) => front,
        None => bytes,
    }
}

/// The number of the line in which a byte of a text stands, counted from 1.
pub fn line_at(text: &str, byte: usize) -> usize
    ensures { result ≡ line_at text.now byte }
{
    let front = front(text.as_bytes(), byte);
    let _short = front.len();
    1 + count_breaks(front)
}
