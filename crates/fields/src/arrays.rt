// Parts of an array.

ghost use Rattle.std.specs.Prelude.{◌≡◌, ◌∷◌, length, take};

// The elements move up by one, over the last of them, and x goes to the front. Nothing happens where there is no element. Not by std's `copy_within`: that becomes
// memmove, which the archive for C would then ask of its host.
pub fn shift_in<T: Copy>(a: &mut [T], x: T)
    ensures { a.new ≡ take (length a.old) (x ∷ a.old) }
{
    let mut carried = x;
    for i in 0..a.len() {
        let next = a[i];
        a[i] = carried;
        carried = next;
    }
}
