// The screen, for `write!`.
use std::fmt;

#[derive(Drop)]
pub(crate) struct Screen;

impl fmt::Write for Screen {
    fn write_str(&mut self, s: &str) -> fmt::Result {
        console::say(s.as_bytes());
        Ok(())
    }
}
