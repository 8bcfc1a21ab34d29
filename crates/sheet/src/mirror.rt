// Reading traces the other way round: what becomes of a row and of its class.
ghost use Rattle.std.specs.Prelude.{◌≡◌, map};
ghost use Rattle.sheet.specs.Classes.{mirror_class};
ghost use Rattle.sheet.specs.Rows.{mirror_row};

use crate::row::{Class, Row};

// What has a mirror image: itself, where traces are read the other way round.
pub(crate) trait Mirror: Copy {
    ghost mirror: { Self → Self };

    // The mirror image.
    fn mirrored(self) -> Self
        ensures { result ≡ mirror self };
}

impl Mirror for Row {
    ghost mirror = { mirror_row };

    // Next for yest, until for since, start for end, and each the other way.
    fn mirrored(self) -> Row {
        match self {
            Row::Next(a) => Row::Yest(a),
            Row::Yest(a) => Row::Next(a),
            Row::Until(a, b) => Row::Since(a, b),
            Row::Since(a, b) => Row::Until(a, b),
            Row::Start => Row::End,
            Row::End => Row::Start,
            row => row,
        }
    }
}

impl Mirror for Class {
    ghost mirror = { mirror_class };

    // Past for future, and future for past.
    fn mirrored(self) -> Class {
        match self {
            Class::Past => Class::Future,
            Class::Future => Class::Past,
            class => class,
        }
    }
}

// Puts the mirror image of each item in its place.
pub(crate) fn mirror_all<T: Mirror>(items: &mut [T])
    ensures { items.new ≡ map T.mirror items.old }
{
    for item in items.iter_mut() {
        *item = item.mirrored();
    }
}
