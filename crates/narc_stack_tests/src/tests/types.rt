//! The types that frames and their parts are built of.
use narc_compose::{Measured, Parted, PartedFormat, SeqTail, Strip, Union};
use narc_eth::{ArpPart, EthHead};
use narc_ipv4::IpHeadPart;
use narc_list::{Bytes, Pad, Region};
use narc_samples::are_one;
use narc_stack::{
    AsIpv4, AsPacket, ByIpv4, ByTcp, ByType, ByUdp, ContentOctets, ContentOf, Frame, FramePartTail,
    IpContent, Ipv4Format, Ipv4Part, Ipv4PartTail, OctetsThere, ShortestFrame, TypeOfHeader,
    ZerosBehind,
};
use narc_transport::{TcpPart, UdpPart};
use std::marker::PhantomData;

#[test]
fn a_frame_is_a_header_and_what_its_type_says(_rt: HostRuntime) {
    are_one(
        PhantomData::<Frame>,
        PhantomData::<
            Strip<
                SeqTail<
                    EthHead,
                    Union<
                        ByType,
                        SeqTail<PartedFormat<ArpPart>, Pad, ShortestFrame>,
                        Union<ByIpv4, Parted<Ipv4Part>, Bytes>,
                    >,
                    TypeOfHeader,
                >,
                AsPacket,
            >,
        >,
    );
}

#[test]
fn an_ipv4_packet_is_a_header_and_data_and_padding(_rt: HostRuntime) {
    are_one(
        PhantomData::<Ipv4Format>,
        PhantomData::<
            Strip<
                Measured<
                    SeqTail<
                        PartedFormat<IpHeadPart>,
                        SeqTail<Region<IpContent, ContentOctets>, Pad, ZerosBehind>,
                        ContentOf,
                    >,
                    OctetsThere,
                >,
                AsIpv4,
            >,
        >,
    );
}

#[test]
fn data_is_a_datagram_or_a_segment_or_unread(_rt: HostRuntime) {
    are_one(
        PhantomData::<IpContent>,
        PhantomData::<Union<ByUdp, Parted<UdpPart>, Union<ByTcp, Parted<TcpPart>, Bytes>>>,
    );
}

#[test]
fn a_part_hands_on_to_ipv4_packets(_rt: HostRuntime) {
    are_one(PhantomData::<Ipv4PartTail>, PhantomData::<Ipv4Format>);
}

#[test]
fn a_part_hands_on_to_whole_frames(_rt: HostRuntime) {
    are_one(PhantomData::<FramePartTail>, PhantomData::<Frame>);
}
