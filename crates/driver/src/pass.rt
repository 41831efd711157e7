// A block folded into another (01's term) and then taken through all rounds of a book's body.
ghost use Rattle.std.specs.Prelude.{◌≡◌, ◌<◌, length};
ghost use Rattle.driver.specs.Driver as D;

use cipher::lengths;
use cipher::size::KeySize;
use table_reader::fold::fold;
use table_reader::round::rounds;

// The block y folded into x by group g, and the result taken through all rounds.
pub fn pass(size: KeySize, body: &[u8], g: usize, x: [u8; 16], y: [u8; 16]) -> [u8; 16]
    requires { (g < 3) × (length body.now ≡ D.body_length size) }
    ensures { result ≡ D.pass body.now g x y }
{
    let (groups, _) = body[lengths::START..].as_chunks::<{ lengths::GROUP }>();
    let z = fold(&groups[g], x, y);
    rounds(body, size.rounds(), z)
}
