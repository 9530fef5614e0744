// A number of a controller's image.
use crate::places::number_at;
use lgx_core::Controller;
use lgx_num::{Kind, Place};

/// A number that all words of the controller's image were mixed to. Two states with different numbers are told apart at once;
/// nothing else rests on it.
pub(crate) fn mark_of(controller: &Controller) -> u64 {
    let mut mark = 0xcbf2_9ce4_8422_2325u64;
    for word in 0..controller.image_len() / 4 {
        let place = Place {
            at: word.wrapping_mul(32),
            kind: Kind::Dint,
        };
        let number = number_at(controller, place).cast_unsigned();
        mark = (mark ^ number as u64).wrapping_mul(0x0100_0000_01b3);
    }
    mark
}
