// The tag session, exported to C: the caller keeps it as 19 bytes, any bytes being some session.
ghost use Rattle.std.specs.Prelude.{◌≡◌};
ghost use Rattle.driver.specs.Driver as D;
ghost use Rattle.bowlinette.specs.Into.{into};
ghost use Rattle.bowlinette.specs.Session.{session_in, recorded, tag_recorded};

// A fresh session on a book, into its record.
#[unsafe(no_mangle)]
pub extern "C" fn bowlinette_begin(s: &mut [u8; 19], book: &[u8]) -> u32
    ensures { (result, s.new) ≡ into (recorded (D.begin_answer book.now)) s.old }
{
    bowlinette::session::bowlinette_begin(s, book)
}

// A block call on the session in a record.
#[unsafe(no_mangle)]
pub extern "C" fn bowlinette_block_call(s: &mut [u8; 19], book: &[u8], block: &[u8]) -> u32
    ensures { (result, s.new) ≡ into (recorded (D.block_answer book.now block.now (session_in s.old))) s.old }
{
    bowlinette::session::bowlinette_block_call(s, book, block)
}

// A last call on the session in a record, its tag into tag.
#[unsafe(no_mangle)]
pub extern "C" fn bowlinette_last_call(
    s: &mut [u8; 19],
    book: &[u8],
    block: &[u8],
    kind: u8,
    tag: &mut [u8; 16],
) -> u32
    ensures { (result, (tag.new, s.new)) ≡ into (tag_recorded (D.last_answer book.now block.now kind (session_in s.old))) (tag.old, s.old) }
{
    bowlinette::session::bowlinette_last_call(s, book, block, kind, tag)
}
