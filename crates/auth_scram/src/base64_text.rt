//! Base64 as a part of a message.
ghost use Rattle.auth_primitives.specs.Reading.{base64_goes_on, base64_may_end};

use crate::parts::Part;
use auth_primitives::Base64Text;

impl Part for Base64Text {
    ghost goes_on = { base64_goes_on };

    ghost may_end = { base64_may_end };

    fn after(self, byte: u8) -> Option<Base64Text> {
        self.followed_by(byte)
    }

    fn ends(self) -> bool {
        self.is_complete()
    }
}
