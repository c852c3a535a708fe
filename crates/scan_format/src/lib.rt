// Which layout a file's scan data has (scan_format.rs).
#![tactic(auto)]

ghost use Rattle.std.specs.Prelude.{◌≡◌};
ghost use Rattle.lists.specs.Left.{LeftList};
ghost use Rattle.scan_format.specs.Format.{format_of, flat, display_name};

use refusal::Refusal;

#[derive(Clone, Copy)]
pub enum ScanDataFormat {
    PacketHeader,
    FlatV63,
    FlatV66,
}

impl ScanDataFormat {
    #[tactic(auto, unfolding(crate::specs::Format::format_of))]
    pub fn detect(version: u32, flat_peaks: bool) -> ScanDataFormat
        ensures { result ≡ format_of version flat_peaks }
    {
        if !flat_peaks {
            return ScanDataFormat::PacketHeader;
        }
        if version <= 63 {
            ScanDataFormat::FlatV63
        } else {
            ScanDataFormat::FlatV66
        }
    }

    pub fn is_flat(self) -> bool
        ensures { result ≡ flat self }
    {
        matches!(self, ScanDataFormat::FlatV63 | ScanDataFormat::FlatV66)
    }

    pub fn display_name(self, out: &mut [u8]) -> Result<u64, Refusal>
        ensures { LeftList (display_name self) out.old result out.new }
    {
        match self {
            ScanDataFormat::PacketHeader => text::write(b"PacketHeader", out),
            ScanDataFormat::FlatV63 => text::write(b"FlatV63 (TSQ Vantage SRM)", out),
            ScanDataFormat::FlatV66 => text::write(b"FlatV66 (TSQ Quantiva/Altis SRM)", out),
        }
    }
}
