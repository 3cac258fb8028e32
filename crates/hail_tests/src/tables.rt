//! Tables that stand in texts. A line is a call, which is a name with at most three numbers, and
//! behind a colon what it answers.

use std::test::Fail;

/// A call of a table.
#[derive(Clone, Copy)]
pub(crate) struct Call<'a> {
    pub name: &'a str,
    /// Its numbers, and 0 in place of those that it lacks.
    pub numbers: (u64, u64, u64),
}

/// How many parts a text has.
pub(crate) fn count_of(text: &str) -> usize {
    text.split("== ").skip(1).count()
}

/// The first line of a text, and what stands behind it.
pub(crate) fn head_and_rest<'a>(text: &'a str) -> Result<(&'a str, &'a str), Fail> {
    two(text, "\n")
}

/// The call of a line, and its answer.
pub(crate) fn call_and_answer<'a>(line: &'a str) -> Result<(Call<'a>, &'a str), Fail> {
    let (call, answer) = two(line, ":")?;
    Ok((call_in(call)?, answer.trim()))
}

/// The call that a text spells.
pub(crate) fn call_in<'a>(text: &'a str) -> Result<Call<'a>, Fail> {
    let mut words = text.split(" ");
    let Some(name) = words.next() else {
        return Err("the name of a call".into());
    };
    let numbers = (
        number(words.next())?,
        number(words.next())?,
        number(words.next())?,
    );
    Ok(Call { name, numbers })
}

fn number(word: Option<&str>) -> Result<u64, Fail> {
    match word {
        Some(word) => Ok(word.parse::<u64>()?),
        None => Ok(0),
    }
}

/// What stands before and behind the first mark.
pub(crate) fn two<'a>(text: &'a str, mark: &str) -> Result<(&'a str, &'a str), Fail> {
    match text.split_once(mark) {
        Some(parts) => Ok(parts),
        None => Err("a mark in a table".into()),
    }
}
