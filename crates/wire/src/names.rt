// The names "." and "..".
ghost use Rattle.std.specs.Prelude.{◌≡◌, ◌+◌, ◌≤◌, length};
ghost use Rattle.spec.specs.Bytes.{part};
ghost use Rattle.spec.specs.Names.{is_dot, is_dot_dot, is_dots};

// Whether the n bytes from `at` are ".".
pub fn is_dot(s: &[u8], at: usize, n: usize) -> bool
    requires { at + n ≤ length s.now }
    ensures { result ≡ is_dot (part s.now at n) }
{
    n == 1 && s[at] == b'.'
}

// Whether the n bytes from `at` are "..".
pub fn is_dot_dot(s: &[u8], at: usize, n: usize) -> bool
    requires { at + n ≤ length s.now }
    ensures { result ≡ is_dot_dot (part s.now at n) }
{
    n == 2 && s[at] == b'.' && s[at + 1] == b'.'
}

// Whether the n bytes from `at` are "." or "..".
pub fn is_dots(s: &[u8], at: usize, n: usize) -> bool
    requires { at + n ≤ length s.now }
    ensures { result ≡ is_dots (part s.now at n) }
{
    is_dot(s, at, n) || is_dot_dot(s, at, n)
}
