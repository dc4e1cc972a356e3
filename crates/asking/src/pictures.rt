//! Control characters, and the pictures that stand for them in a table; and the sign that stands for a number.

use std::alloc::{AllocError, Global};

/// The picture of the character 0, which those of the other control characters follow.
const FIRST: u32 = 0x2400;

/// How many control characters have pictures.
const COUNT: u32 = 32;

/// Stands for the number of the time, in a question that is asked several times.
const NUMBER: char = '№';

fn without_picture(character: char) -> char {
    let number = u32::from(character);
    if number < FIRST || FIRST + COUNT <= number {
        return character;
    }
    char::from_u32(number - FIRST).unwrap_or(character)
}

fn with_picture(character: char) -> char {
    let number = u32::from(character);
    if COUNT <= number {
        return character;
    }
    char::from_u32(FIRST + number).unwrap_or(character)
}

/// A text of a table, with the control characters whose pictures stand in it.
pub fn without_pictures(alloc: Global, line: &str) -> Result<String, AllocError> {
    let mut text = String::new(alloc);
    for character in line.chars() {
        text.push(without_picture(character))?;
    }
    Ok(text)
}

/// A text as a table has it, with pictures for its control characters.
pub fn with_pictures(alloc: Global, text: &str) -> Result<String, AllocError> {
    let mut line = String::new(alloc);
    for character in text.chars() {
        line.push(with_picture(character))?;
    }
    Ok(line)
}

/// A question with this number where the sign for one stands.
pub fn with_number(alloc: Global, question: &str, number: u32) -> Result<String, AllocError> {
    let digits = format!(in alloc; "{number}")?;
    let mut text = String::new(alloc);
    for character in question.chars() {
        if character == NUMBER {
            text.push_str(digits.as_str())?;
        } else {
            text.push(character)?;
        }
    }
    Ok(text)
}
