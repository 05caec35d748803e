ghost use Rattle.std.specs.Prelude.{◌≡◌, length};
ghost use Rattle.film_formats.specs.Apart.{IsFirstApart};

/// The first place at which the bytes of two pieces of one length differ.
pub fn first_apart(a: &[u8], b: &[u8]) -> Option<usize>
    requires { length a.now ≡ length b.now }
    ensures { IsFirstApart a.now b.now result }
{
    if a == b {
        return None;
    }
    for at in 0..a.len() {
        if a[at] != b[at] {
            return Some(at);
        }
    }
    None
}
