//! Lists that have room.

ghost use Rattle.std.specs.Prelude.{◌≡◌, ◌<◌, ◌≤◌, [], ◌∷◌, ◌++◌, length, vec_capacity};

/// Adds an item at the end of a list that has room for it, without taking memory.
pub fn push_within<T: Drop>(list: &mut Vec<T>, item: T)
    requires room { length list.old.items < vec_capacity list.old }
    ensures items { list.new.items ≡ list.old.items ++ item ∷ [] }
    ensures capacity { vec_capacity list.old ≤ vec_capacity list.new }
{
    let pushed = list.push(item);
    pushed.unwrap()
}
