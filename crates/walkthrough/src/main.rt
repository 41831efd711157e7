// One ink file on its way from the pad over the driver and the server to the archive and the loan
// desk, printed station by station for people to follow; then its end again with one bit of the sealed
// file flipped, and with one bit of the tag flipped. Nothing is read: key, chain and ink are made by
// fixed rules.

#![tactic(auto)]

use std::io;

mod made; // made.rt: the key, the chain and the ink
mod compare; // compare.rt: what of an opened message is spoiled
mod print; // print.rt: lines of text
mod stations; // stations.rt: what each station does

// The book of the next pad, which has a key and a chain of its own.
fn next_pad(rt: &impl Print) -> io::Result<()> {
    println!(rt; "\nThursday, at the works\n7. The works builds the next pad's book")?;
    let mut book = stations::book_room();
    stations::works(rt, &made::key(2), &made::chain(2), &mut book)
}

// The way of one ink file, the next pad's book, and the end of that way with damage.
fn one_pad(rt: &impl Print) -> io::Result<()> {
    let case = made::Case::of_pad(1);
    let sent = stations::front(rt, &case)?;
    stations::back(rt, &case, &sent)?;
    next_pad(rt)?;
    stations::damaged(rt, &case, &sent)
}

fn main(rt: HostRuntime) -> io::Result<()> {
    println!(rt; "Bowlinette: one ink file from the pad to the loan desk")?;
    println!(rt;
        "A line shows what goes in or out, its length, and its first and last four bytes in hex.\n"
    )?;
    one_pad(&rt)
}
