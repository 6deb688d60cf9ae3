//! Certificates that are written within a limit.
ghost use Rattle.std.specs.Prelude.{◌≤◌};
ghost use Rattle.sd_base.specs.declared.limits.TheConstants.{CERTIFICATE_BYTES};

use cert_text::{CertError, read_certificate, write_within};
use sd_base::Rows;
use std::alloc::Global;
use std::test::*;

/// A certificate of 150 bytes.
const TEXT: &[u8] = b"sdf3-certificate 1
throughput
no-overlap yes
buffers 0=4 1=2
rate 1/7
schedule 7 1
0 1 4
2 5
7
cycle 7 1 0 1 5
1 0 t0
0 2 s0
1 1 t0
0 3 s0
0 4 o0
end
";

/// What comes of a text that is read as that of a certificate, and written again in so many bytes at most.
fn rewritten(alloc: Global, text: &[u8], most: u64) -> Option<Result<Rows<u8>, CertError>>
    requires { most ≤ CERTIFICATE_BYTES }
{
    match read_certificate(alloc, text) {
        Ok((version, certificate)) => Some(write_within(alloc, &certificate, version, most)),
        Err(_) => None,
    }
}

/// Whether the text was written.
fn is_the_text(written: &Option<Result<Rows<u8>, CertError>>) -> bool {
    match written {
        Some(Ok(text)) => text.as_slice() == TEXT,
        _ => false,
    }
}

#[test]
fn a_text_as_long_as_its_limit_is_written(rt: HostRuntime) {
    let written = rewritten(rt.alloc(), TEXT, 150);
    assert!(rt; is_the_text(&written));
}

#[test]
fn a_text_one_byte_longer_than_its_limit_is_too_long(rt: HostRuntime) {
    let written = rewritten(rt.alloc(), TEXT, 149);
    assert!(rt; matches!(written, Some(Err(CertError::TooLong))));
}
