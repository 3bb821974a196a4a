//! The orders.

use zrun::ServerId;

/// What a line asks for.
#[derive(Clone, Copy)]
pub enum Order {
    /// Calls with pauses.
    Rest(Rest),
    /// Calls one after the other.
    Long(Long),
}

/// A chain, and calls of its client with a pause before each.
#[derive(Clone, Copy)]
pub struct Rest {
    /// The last server of the chain.
    pub last: ServerId,
    /// How many calls.
    pub calls: u64,
    /// The pause before each, in microseconds.
    pub micros: u64,
}

/// A chain, and calls of its client.
#[derive(Clone, Copy)]
pub struct Long {
    /// The last server of the chain.
    pub last: ServerId,
    /// How many calls.
    pub calls: u64,
}

impl Order {
    /// Reads an order, if the line is one.
    pub fn read(line: &str) -> Option<Order> {
        let mut words = line.split(' ');
        let kind = words.next()?;
        let last = server_of(words.next())?;
        let calls = number_of(words.next())?;
        match kind {
            "rest" => {
                let micros = number_of(words.next())?;
                Some(Order::Rest(Rest {
                    last,
                    calls,
                    micros,
                }))
            }
            "long" => Some(Order::Long(Long { last, calls })),
            _ => None,
        }
    }
}

fn server_of(word: Option<&str>) -> Option<ServerId> {
    let number = number_of(word)?;
    if number > 255 {
        return None;
    }
    ServerId::new(number as u8)
}

fn number_of(word: Option<&str>) -> Option<u64> {
    word?.parse::<u64>().ok()
}
