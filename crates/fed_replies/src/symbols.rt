// The symbols of hashes, looked up two by two.
ghost use Rattle.std.specs.Prelude.{◌≡◌, ◌++◌, ◌≤◌, length, slice_index, IfOk};
ghost use Rattle.base64.specs.Engines.{url_safe_no_pad};
ghost use Rattle.base64.specs.GeneralPurpose.{encode_of};
ghost use Rattle.base64.specs.Rfc4648.{encode_group};
ghost use Rattle.fed_replies.specs.Plain.{IsPlain};
ghost use Rattle.fed_replies.specs.Symbols.{ArePairs, alphabet};

use crate::hash_id::{Hash, SYMBOLS, Symbols, encoded};
use fed_json::NoMemory;
use std::alloc::Global;
use std::marker::Model;

/// The symbols of URL-safe base64.
const ALPHABET: [u8; 64] = *b"ABCDEFGHIJKLMNOPQRSTUVWXYZabcdefghijklmnopqrstuvwxyz0123456789-_";

/// So many pairs of symbols there are.
const PAIRS: usize = 4096;

/// The pair of symbols of each number of 12 bits, so that three bytes are two look-ups; none before they are made.
///
/// Contracts see it as the number of pairs.
#[derive(Drop)]
pub(crate) struct SymbolPairs {
    pairs: Vec<[u8; 2]>,
}

impl Model for SymbolPairs {
    ghost use Rattle.std.specs.Prelude.{ℕ, length};
    ghost use Rattle.std.specs.Coded.{coded_ℕ};

    ghost Value = { ℕ };

    ghost coded = { coded_ℕ };

    ghost use Rattle.fed_replies.specs.Symbols.{ArePairs};

    ghost view = { λ p. length p.pairs.items };

    ghost invariant = { λ p. ArePairs p.pairs.items };
}

impl SymbolPairs {
    /// No pairs.
    pub(crate) fn new(alloc: Global) -> SymbolPairs {
        SymbolPairs {
            pairs: Vec::new(alloc),
        }
    }

    /// Makes the pairs, where they are not made yet.
    pub(crate) fn make(&mut self, alloc: Global) -> Result<(), NoMemory> {
        if self.pairs.is_empty() {
            self.pairs = all_pairs(alloc)?;
        }
        Ok(())
    }

    /// The characters behind the sigil of the id that a hash is.
    pub(crate) fn symbols_of(&self, hash: &Hash) -> Symbols
        ensures symbols { result ≡ encode_of url_safe_no_pad hash.now }
        ensures plain { IsPlain result }
    {
        if self.pairs.len() < PAIRS {
            return encoded(hash);
        }
        symbols_by(&self.pairs, hash)
    }
}

// The pair of each number.
fn all_pairs(alloc: Global) -> Result<Vec<[u8; 2]>, NoMemory>
    ensures { IfOk result (λ pairs. ArePairs pairs.items) }
{
    let mut pairs = Vec::with_capacity(alloc, PAIRS)?;
    'pairs: for number in 0..PAIRS {
        pairs.push([ALPHABET[number / 64], ALPHABET[number % 64]])?;
    }
    Ok(pairs)
}

// The symbols of a hash, by all the pairs.
fn symbols_by(pairs: &[[u8; 2]], hash: &Hash) -> Symbols
    requires pairs { ArePairs pairs.now }
    requires all { 4096 ≤ length pairs.now }
    ensures symbols { result ≡ encode_of url_safe_no_pad hash.now }
    ensures plain { IsPlain result }
{
    let mut symbols = [0; SYMBOLS];
    'words: for word in 0..5 {
        let from = 6 * word;
        let to = 8 * word;
        let mut bytes = [0; 8];
        bytes.copy_from_slice(&hash[from..from + 8]);
        symbols[to..to + 8].copy_from_slice(&symbol_groups(pairs, &bytes));
    }
    let last = symbol_group(pairs, hash[30], hash[31], 0);
    symbols[40..43].copy_from_slice(&last[..3]);
    symbols
}

// The eight symbols of the first six of eight bytes: one load stands for six.
fn symbol_groups(pairs: &[[u8; 2]], bytes: &[u8; 8]) -> [u8; 8]
    requires pairs { ArePairs pairs.now }
    requires all { 4096 ≤ length pairs.now }
    ensures { result ≡ encode_group alphabet (slice_index bytes.now 0) (slice_index bytes.now 1) (slice_index bytes.now 2)
        ++ encode_group alphabet (slice_index bytes.now 3) (slice_index bytes.now 4) (slice_index bytes.now 5) }
{
    let x = u64::from_be_bytes(*bytes);
    let first = pairs[(x >> 52) as usize];
    let second = pairs[((x >> 40) % 4096) as usize];
    let third = pairs[((x >> 28) % 4096) as usize];
    let fourth = pairs[((x >> 16) % 4096) as usize];
    [
        first[0], first[1], second[0], second[1], third[0], third[1], fourth[0], fourth[1],
    ]
}

// The four symbols of three bytes.
fn symbol_group(pairs: &[[u8; 2]], a: u8, b: u8, c: u8) -> [u8; 4]
    requires pairs { ArePairs pairs.now }
    requires all { 4096 ≤ length pairs.now }
    ensures { result ≡ encode_group alphabet a b c }
{
    let high = pairs[a as usize * 16 + b as usize / 16];
    let low = pairs[b as usize % 16 * 256 + c as usize];
    [high[0], high[1], low[0], low[1]]
}
