// The hash state of a run.
use crate::numbers::{last_number, next_number};
use hash_state::{Fnv1aState, SipHashState};
use std::str::SplitAsciiWhitespace;
use text::number;

#[derive(Clone, Copy)]
pub enum ChosenState {
    Fnv1a(Fnv1aState),
    SipHash(SipHashState),
}

impl ChosenState {
    // No `FromStr`: it is told in several words.
    pub(crate) fn parse(mut words: SplitAsciiWhitespace<'_>) -> Option<ChosenState> {
        match words.next()? {
            "fnv1a" => parse_fnv1a(words),
            "siphash" => parse_siphash(words),
            _ => None,
        }
    }

    // The same as one argument, with colons between its parts.
    pub(crate) fn parse_argument(argument: &str) -> Option<ChosenState> {
        let Some((name, key)) = argument.split_once(':') else {
            return (argument == "fnv1a").then_some(ChosenState::Fnv1a(Fnv1aState::new()));
        };
        match name {
            "fnv1a" => {
                let start = number(key.as_bytes())?;
                Some(ChosenState::Fnv1a(Fnv1aState::from_start(start)))
            }
            "siphash" => {
                let (k0, k1) = key.split_once(':')?;
                let state = SipHashState::new(number(k0.as_bytes())?, number(k1.as_bytes())?);
                Some(ChosenState::SipHash(state))
            }
            _ => None,
        }
    }
}

// FNV-1a, of another start where one is given.
fn parse_fnv1a(mut words: SplitAsciiWhitespace<'_>) -> Option<ChosenState> {
    let state = match words.next() {
        None => Fnv1aState::new(),
        Some(start) => Fnv1aState::from_start(number(start.as_bytes())?),
    };
    words.next().is_none().then_some(ChosenState::Fnv1a(state))
}

// SipHash-2-4 by the two words of its key.
fn parse_siphash(mut words: SplitAsciiWhitespace<'_>) -> Option<ChosenState> {
    let k0 = next_number(&mut words)?;
    let k1 = last_number(words)?;
    Some(ChosenState::SipHash(SipHashState::new(k0, k1)))
}
