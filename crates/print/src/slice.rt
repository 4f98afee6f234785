// A part of a text, put into a buffer from a place on. What is past the buffer's end is counted and stored nowhere.
ghost use Rattle.std.specs.Prelude.{◌≡◌, ◌+◌, ◌≤◌, ◌<◌, ◌^◌, length};
ghost use Rattle.print.specs.Print.{slice};
ghost use Rattle.print.specs.Put.{Put};

// Puts the bytes of a text from a up to e.
pub fn put_slice(out: &mut [u8], at: usize, x: &[u8], a: usize, e: usize) -> usize
    requires { (at < 2 ^ 57) × (length x.now ≤ 2 ^ 24) }
    ensures { Put at (slice x.now a e) out.old result out.new × (result ≤ at + 2 ^ 24) }
{
    let past = e.min(x.len());
    let mut p = at;
    for k in a..past {
        if out.len() <= p {
            return p + (past - k);
        }
        out[p] = x[k];
        p += 1;
    }
    p
}
