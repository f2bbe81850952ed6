// The tags of frames: the twenty kinds of frame that there are, by the numbers that stand on the wire.
#![tactic(auto)]

ghost use Rattle.std.specs.Prelude.{◌≡◌};
ghost use Rattle.tag.specs.Tags.{Named, number_of};

use refusal::Refusal;

// In the order of their numbers, so that `tag as u8` is a tag's number.
#[derive(Clone, Copy, PartialEq, Eq)]
pub enum Tag {
    Hello = 1,
    AuthRequest,
    AuthBadMethod,
    AuthReplyMore,
    AuthRequestMore,
    AuthDone,
    AuthSignature,
    ClientIdent,
    ServerIdent,
    IdentMissingFeatures,
    SessionReconnect,
    SessionReset,
    SessionRetry,
    SessionRetryGlobal,
    SessionReconnectOk,
    Wait,
    Message,
    Keepalive2,
    Keepalive2Ack,
    Ack,
}

// A byte that is no tag's number is refused with 8, as in a preamble.
impl TryFrom<u8> for Tag {
    type Error = Refusal;

    ghost try_from_gives = { Named };

    fn try_from(number: u8) -> Result<Tag, Refusal> {
        Ok(match number {
            1 => Tag::Hello,
            2 => Tag::AuthRequest,
            3 => Tag::AuthBadMethod,
            4 => Tag::AuthReplyMore,
            5 => Tag::AuthRequestMore,
            6 => Tag::AuthDone,
            7 => Tag::AuthSignature,
            8 => Tag::ClientIdent,
            9 => Tag::ServerIdent,
            10 => Tag::IdentMissingFeatures,
            11 => Tag::SessionReconnect,
            12 => Tag::SessionReset,
            13 => Tag::SessionRetry,
            14 => Tag::SessionRetryGlobal,
            15 => Tag::SessionReconnectOk,
            16 => Tag::Wait,
            17 => Tag::Message,
            18 => Tag::Keepalive2,
            19 => Tag::Keepalive2Ack,
            20 => Tag::Ack,
            _ => return Err(Refusal::Tag(number)),
        })
    }
}

impl From<Tag> for u8 {
    ghost from_gives = { λ tag n. n ≡ number_of tag };

    fn from(tag: Tag) -> u8 {
        tag as u8
    }
}
