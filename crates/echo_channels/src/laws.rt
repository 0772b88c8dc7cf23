//! What holds of the channels of echoes. The functions do nothing: what each ensures is the law.

ghost use Rattle.echo_channels.specs.Laws.{BodyIsSmall, CarriedInEcho, ChannelIsLarge, ChannelIsSmall, CyclicPrefix};

/// The channel of an echo, over 2^30, is from 0.749 to 1.251 in size, in each bin (own).
pub fn size_of_a_channel()
    ensures large { ChannelIsLarge }
    ensures small { ChannelIsSmall }
{}

/// The cyclic prefix theorem (own). Where 64 samples are within a bound B, in each component, of an echoed body, each
/// received carrier is within 32 times 2.829*B + 2.77, in size, of 32 times the carrier that was sent and its channel.
/// The carriers are any that fit a body, received as `carriers_of` has them.
pub fn the_cyclic_prefix()
    ensures thousandths { CyclicPrefix }
    ensures carried { CarriedInEcho }
{}

/// No component of an echoed body, over 2^31, is larger than 31321 in size (own).
pub fn size_of_an_echoed_body()
    ensures { BodyIsSmall }
{}
