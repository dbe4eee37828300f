//! Paths between their slashes.
ghost use Rattle.std.specs.Prelude.{◌≡◌};
ghost use Rattle.rail_service.specs.Paths.{before_slash as before, after_slash as after, part as part_of};

/// What stands before the first slash, or all of it.
fn before_slash(path: &[u8]) -> &[u8]
    ensures { result.now ≡ before path.now }
{
    let mut end = 0;
    while end < path.len() && path[end] != b'/' {
        end += 1;
    }
    &path[..end]
}

/// What stands after the first slash, or nothing.
fn after_slash(path: &[u8]) -> &[u8]
    ensures { result.now ≡ after path.now }
{
    let skipped = before_slash(path).len() + 1;
    path.get(skipped..).unwrap_or(b"")
}

/// What stands in the path after that many slashes, up to the next one.
pub fn part(path: &[u8], number: u8) -> &[u8]
    ensures { result.now ≡ part_of number path.now }
{
    let mut rest = path;
    let mut left = number;
    while left > 0 {
        rest = after_slash(rest);
        left -= 1;
    }
    before_slash(rest)
}
