// The rounds, by the tables of one round at a time: no more of a book is ever held.
ghost use Rattle.std.specs.Prelude.{◌≡◌, ◌≤◌, ◌<◌};
ghost use Rattle.cipher.specs.KeySize as S;
ghost use Rattle.cipher.specs.Chain.{chain_set};
ghost use Rattle.cipher.specs.Coding.{decoded};
ghost use Rattle.cipher.specs.Tables.{table_round};
ghost use Rattle.round.specs.Round.{Ready, tables_of, later_rounds};

use book::build::build_round;
use cipher::block::code_block;
use cipher::invert::invert;
use cipher::lengths;
use cipher::schedules::LEA;
use cipher::size::KeySize;
use driver::run::run_round;

// A key and a valid chain, which are of one size.
#[derive(Clone, Copy)]
pub struct Keyed<'a> {
    pub size: KeySize,
    pub key: &'a [u8],
    pub chain: &'a [u8],
    ghost ready: { Ready size key.now chain.now },
}

impl<'a> Keyed<'a> {
    // A block by the tables of round l, which are built for it, by LEA's own schedule.
    pub fn one_round(&self, l: usize, x: [u8; 16]) -> [u8; 16]
        requires { l < S.rounds self.now.size }
        ensures { result ≡ table_round (tables_of self.now.size self.now.key.now self.now.chain.now l) x }
    {
        let mut tables = [0u8; lengths::ROUND_TABLES];
        build_round(LEA, self.key, self.chain, l, &mut tables).unwrap();
        run_round(&tables, &x).unwrap()
    }

    // A block by the rounds from 1 on.
    pub fn later_rounds(&self, x: [u8; 16]) -> [u8; 16]
        ensures { result ≡ later_rounds self.now.size self.now.key.now self.now.chain.now (S.rounds self.now.size) x }
    {
        let mut b = x;
        // A loop: a fold is no plainer, since its closure has to write `one_round`'s two clauses again.
        for l in 1..self.size.rounds() {
            // In two steps: a call's result put over the array that the call takes is not covered by the checker.
            let next = self.one_round(l, b);
            b = next;
        }
        b
    }

    // A block decoded by set n of the chain.
    pub fn opened(&self, n: usize, x: [u8; 16]) -> [u8; 16]
        requires { n ≤ S.rounds self.now.size }
        ensures { result ≡ decoded (chain_set self.now.chain.now n) x }
    {
        let at = lengths::SET * (n + 1);
        let mut inverse = [0u8; lengths::SET];
        invert(&self.chain[at..], lengths::SET_CODINGS, &mut inverse);
        code_block(&inverse, x)
    }
}
