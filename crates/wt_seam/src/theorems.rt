//! Theorems on the types of this crate, each a function whose contract states it.
ghost use Rattle.std.specs.Prelude.{◌≡◌, Some};
ghost use Rattle.wt_proto.specs.declared.stream_header.StreamKind.TheVariants as kinds;
ghost use Rattle.wt_seam.specs.UniHeader.{kind_of};

use crate::qpack::{RemoteQPackDecStream, RemoteQPackEncStream};
use crate::stream::StreamUniRemoteH3;

/// A stream that its header names an encoder stream can be set as the encoder's (RFC 9204, section 4.2).
pub fn an_encoder_stream_is_the_encoders(of: &mut RemoteQPackEncStream, stream: StreamUniRemoteH3)
    requires { kind_of stream.stage.header ≡ kinds.QPackEncoder }
    ensures { of.new ≡ Some stream }
{
    of.set_stream(stream);
}

/// A stream that its header names a decoder stream can be set as the decoder's (RFC 9204, section 4.2).
pub fn a_decoder_stream_is_the_decoders(of: &mut RemoteQPackDecStream, stream: StreamUniRemoteH3)
    requires { kind_of stream.stage.header ≡ kinds.QPackDecoder }
    ensures { of.new ≡ Some stream }
{
    of.set_stream(stream);
}
