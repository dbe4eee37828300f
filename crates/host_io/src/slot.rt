// A place where one thing lies.
ghost use Rattle.std.specs.Prelude.{◌≡◌, Option, None, Some, option_map, IfSome};

/// A place where one thing lies, which may be taken out, and put there again.
pub trait Slot<T> {
    /// What lies there, where the place tells it.
    ghost held: { Self → Option (Option T) };

    /// Takes it out. None where nothing lies there, or where the place can't be reached.
    fn take(&mut self) -> Option<T>
        ensures takes { IfSome (held self.old) (λ item. result ≡ item) }
        ensures empty { held self.new ≡ option_map (λ _. None) (held self.old) };

    /// Puts a thing there.
    fn put(&mut self, item: T)
        ensures puts { held self.new ≡ option_map (λ _. Some item) (held self.old) };
}

/// A place that one alone has.
#[derive(Drop)]
pub struct OwnSlot<T: Drop> {
    item: Option<T>,
}

impl<T: Drop> OwnSlot<T> {
    /// A place where this lies.
    pub fn of(item: T) -> OwnSlot<T>
        ensures { result.item ≡ Some item }
    {
        OwnSlot { item: Some(item) }
    }
}

impl<T: Drop> Slot<T> for OwnSlot<T> {
    ghost held = { λ s. Some s.item };

    fn take(&mut self) -> Option<T> {
        self.item.take()
    }

    fn put(&mut self, item: T) {
        self.item = Some(item);
    }
}
