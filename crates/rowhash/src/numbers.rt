// Numbers as the words of a command.
use std::alloc::{AllocError, Global};
use std::str::SplitAsciiWhitespace;
use text::number;

// The number that is the next word.
pub(crate) fn next_number(words: &mut SplitAsciiWhitespace<'_>) -> Option<u64> {
    number(words.next()?.as_bytes())
}

// The number that is the last word.
pub(crate) fn last_number(mut words: SplitAsciiWhitespace<'_>) -> Option<u64> {
    let last = next_number(&mut words)?;
    words.next().is_none().then_some(last)
}

// The numbers that the words are, or none where one is no number.
pub(crate) fn all_numbers(
    heap: Global,
    words: SplitAsciiWhitespace<'_>,
) -> Result<Option<Vec<u64>>, AllocError> {
    let mut numbers = Vec::new(heap);
    for word in words {
        let Some(next) = number(word.as_bytes()) else {
            return Ok(None);
        };
        numbers.push(next)?;
    }
    Ok(Some(numbers))
}

// The same of rows, which have 32 bits.
pub(crate) fn all_rows(
    heap: Global,
    words: SplitAsciiWhitespace<'_>,
) -> Result<Option<Vec<u32>>, AllocError> {
    let mut rows = Vec::new(heap);
    for word in words {
        let Some(Ok(row)) = number(word.as_bytes()).map(u32::try_from) else {
            return Ok(None);
        };
        rows.push(row)?;
    }
    Ok(Some(rows))
}
