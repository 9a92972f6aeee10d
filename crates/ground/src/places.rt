// A member of an array by its place, where there may be none there.
ghost use Rattle.std.specs.Prelude.{◌≡◌, get_or, set};

// The member at a place; the default where there is none.
pub fn at_or<T: Copy, const N: usize>(members: [T; N], place: u8, default: T) -> T
    ensures { result ≡ get_or members place default }
{
    members.get(usize::from(place)).copied().unwrap_or(default)
}

// The array with another member at a place; as it was where there is none.
pub fn put_at<T: Copy, const N: usize>(members: [T; N], place: u8, member: T) -> [T; N]
    ensures { result ≡ set members place member }
{
    // not by `get_mut`: tried, and after it nothing is known of the other members
    let mut changed = members;
    let place = usize::from(place);
    if place < N {
        changed[place] = member;
    }
    changed
}
