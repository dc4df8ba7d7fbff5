//! Numbers of every width as a column has them: a loop over one width has no other to tell apart.
ghost use Rattle.std.specs.Prelude.{◌≡◌, ℤ, pos};

/// A number of one width.
pub(crate) trait Wide: Copy {
    ghost number: { Self → ℤ };

    fn wide(self) -> i128
        ensures { result ≡ number self };
}

impl Wide for u8 {
    ghost number = { λ n. pos n };

    #[inline]
    fn wide(self) -> i128 {
        i128::from(self)
    }
}

impl Wide for u16 {
    ghost number = { λ n. pos n };

    #[inline]
    fn wide(self) -> i128 {
        i128::from(self)
    }
}

impl Wide for u32 {
    ghost number = { λ n. pos n };

    #[inline]
    fn wide(self) -> i128 {
        i128::from(self)
    }
}

impl Wide for u64 {
    ghost number = { λ n. pos n };

    #[inline]
    fn wide(self) -> i128 {
        i128::from(self)
    }
}

impl Wide for i8 {
    ghost number = { λ n. n };

    #[inline]
    fn wide(self) -> i128 {
        i128::from(self)
    }
}

impl Wide for i16 {
    ghost number = { λ n. n };

    #[inline]
    fn wide(self) -> i128 {
        i128::from(self)
    }
}

impl Wide for i32 {
    ghost number = { λ n. n };

    #[inline]
    fn wide(self) -> i128 {
        i128::from(self)
    }
}

impl Wide for i64 {
    ghost number = { λ n. n };

    #[inline]
    fn wide(self) -> i128 {
        i128::from(self)
    }
}
