// Sets of the symbols 0 to 63.
ghost use Rattle.std.specs.Prelude.{◌≡◌, ℕ, false, ◌&&◌, ◌||◌, ◌==◌, nat_lt};
ghost use Rattle.trace.specs.Symbols.{has, bit_set, set_where, Members};

// How many symbols there are: they are the numbers below it.
pub const SYMBOLS: u8 = 64;

// A set of symbols: symbol s is in it where the bit of value 2^s is set.
#[derive(Clone, Copy, PartialEq, Eq, Debug)]
pub struct SymbolSet {
    bits: u64,
}

impl SymbolSet {
    // The set that no symbol is in.
    pub fn empty() -> SymbolSet
        ensures { result ≡ set_where (λ _. false) }
    {
        SymbolSet { bits: 0 }
    }

    // The set whose symbols are told by the bits of a number, symbol s by the bit of value 2^s.
    pub fn of_bits(bits: u64) -> SymbolSet
        ensures { result ≡ set_where (bit_set bits) }
    {
        SymbolSet { bits }
    }

    // The set with one symbol more; a number above 63 is no symbol, and changes nothing.
    pub fn with(self, symbol: u8) -> SymbolSet
        ensures value { result ≡ set_where (λ t. has self t || symbol == t) }
        ensures members { (t : ℕ) → has result t ≡ (nat_lt t 64 && (has self t || symbol == t)) }
    {
        if symbol < SYMBOLS {
            SymbolSet {
                bits: self.bits | 1 << symbol,
            }
        } else {
            self
        }
    }

    // Whether a symbol is in the set. With it stands the law of sets that are made by a test.
    pub fn contains(&self, symbol: u8) -> bool
        ensures value { result ≡ has self.now symbol }
        ensures law { Members }
    {
        symbol < SYMBOLS && self.bits >> symbol & 1 == 1
    }
}
