// The three key sizes. Each carries its own round count, chain length and book length; builder,
// checks and driver take these numbers from here.
ghost use Rattle.std.specs.Prelude.{◌≡◌, ℕ};
ghost use Rattle.cipher.specs.KeySize as S;
ghost use Rattle.cipher.specs.declared.size.KeySize as D;

use crate::lengths;

#[derive(Clone, Copy, Debug, PartialEq, Eq)]
pub enum KeySize {
    Bytes16,
    Bytes24,
    Bytes32,
}

impl KeySize {
    pub fn rounds(self) -> usize
        ensures { result ≡ S.rounds self }
    {
        match self {
            KeySize::Bytes16 => 24,
            KeySize::Bytes24 => 28,
            KeySize::Bytes32 => 32,
        }
    }

    pub fn key_len(self) -> usize
        ensures { result ≡ S.key_length self }
    {
        match self {
            KeySize::Bytes16 => 16,
            KeySize::Bytes24 => 24,
            KeySize::Bytes32 => 32,
        }
    }

    pub fn chain_len(self) -> usize
        ensures { result ≡ S.chain_length self }
    {
        2 * lengths::SET + (lengths::SET + lengths::ROUND_CODINGS) * self.rounds()
    }

    pub fn book_len(self) -> usize
        ensures { result ≡ S.book_length self }
    {
        lengths::BODY + (lengths::ROUNDS + lengths::ROUND_TABLES * self.rounds())
    }

    // The size whose length, as `length` tells it, is n.
    pub fn with_length<F: Fn(KeySize) -> usize>(n: usize, length: F) -> Option<KeySize>
        requires { F.IsAlwaysCallable length }
        ensures { (len : D.KeySize → ℕ) → ((z : D.KeySize) (m : ℕ) → F.post length z m → m ≡ len z) → result ≡ S.size_by len n }
    {
        if n == length(KeySize::Bytes16) {
            return Some(KeySize::Bytes16);
        }
        if n == length(KeySize::Bytes24) {
            return Some(KeySize::Bytes24);
        }
        if n == length(KeySize::Bytes32) {
            return Some(KeySize::Bytes32);
        }
        None
    }

    // The size of a key of n bytes.
    pub fn of_key_len(n: usize) -> Option<KeySize>
        ensures { result ≡ S.size_of_key n }
    {
        KeySize::with_length(n, |size| size.key_len())
    }

    // The size of the key of a book of n bytes.
    pub fn of_book_len(n: usize) -> Option<KeySize>
        ensures { result ≡ S.size_of_book n }
    {
        KeySize::with_length(n, |size| size.book_len())
    }
}
