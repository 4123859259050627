//! Metas from outside: which texts are good, and which line of the others is bad.

use bk_meta::MetaWhy;

/// The worked meta's first two lines, and what stands behind them.
pub const HEAD: &[u8] = b"1700000000\n2\n";

pub const FILES: &[u8] =
    b"3\nprivate/1/CURRENT crc32 7\nprivate/1/MANIFEST-000001 crc32 0\nshared_checksum/000004_s0123456789ABCDEFGHIJ_130.sst crc32 3808858755\n";

pub const GOOD_HEADS: &[&[u8]] = &[
    b"1700000000\n2\n",
    b"18446744073709551615\n18446744073709551615\n",
    b"0\n0\n",
    b"1700000000\n2\nmetadata 6d65\n",
];

pub const BAD_HEADS: &[(&[u8], u32, MetaWhy)] = &[
    (b"01700000000\n2\n", 1, MetaWhy::Number),
    (b"1700000000\n+2\n", 2, MetaWhy::Number),
    (b"18446744073709551616\n2\n", 1, MetaWhy::Number),
    (b"schema_version 2\n1700000000\n2\n", 1, MetaWhy::SchemaTwo),
    (b"schema_version ", 1, MetaWhy::SchemaTwo),
    (b"", 1, MetaWhy::Ending),
    (b"1\n2", 2, MetaWhy::Ending),
    (b"1\n2\nmetadata 6D65\n3\n", 3, MetaWhy::Metadata),
    (b"1\n2\nmetadata \n3\n", 3, MetaWhy::Metadata),
    (b"1\n2\nmetadata 6d6\n3\n", 3, MetaWhy::Metadata),
    (
        b"1\n2\nmetadata 6d65\nmetadata 6d65\n3\n",
        4,
        MetaWhy::Count,
    ),
    (b"1\n2\n1000000000\n", 3, MetaWhy::Count),
    (b"1\n2\n10001\n", 3, MetaWhy::Count),
    (b"1\n2\n1\n", 3, MetaWhy::Count),
    (b"1\n2\n03\n", 3, MetaWhy::Count),
];

pub const BAD_FILES: &[(&[u8], u32, MetaWhy)] = &[
    (
        b"4\nprivate/1/CURRENT crc32 7\nprivate/1/MANIFEST-000001 crc32 0\nshared_checksum/000004_s0123456789ABCDEFGHIJ_130.sst crc32 1\n",
        7,
        MetaWhy::Ending,
    ),
    (
        b"2\nprivate/1/CURRENT crc32 7\nprivate/1/MANIFEST-000001 crc32 0\nshared_checksum/000004_s0123456789ABCDEFGHIJ_130.sst crc32 1\n",
        6,
        MetaWhy::Extra,
    ),
    (
        b"3\nprivate/1/CURRENT crc32 7\nprivate/1/MANIFEST-000001 crc32 0\nshared_checksum/000004_s0123456789ABCDEFGHIJ_130.sst crc32 1",
        6,
        MetaWhy::Ending,
    ),
    (
        b"3\nprivate/1/MANIFEST-000001 crc32 0\nprivate/1/CURRENT crc32 7\nshared_checksum/000004_s0123456789ABCDEFGHIJ_130.sst crc32 1\n",
        5,
        MetaWhy::Order,
    ),
    (
        b"2\nprivate/1/CURRENT crc32 7\nprivate/1/CURRENT crc32 7\n",
        5,
        MetaWhy::Order,
    ),
    (
        b"3\nprivate/1/CURRENT crc32 7\nprivate/1/MANIFEST-000001 crc32 0\nshared_checksum/../x crc32 1\n",
        6,
        MetaWhy::File,
    ),
    (b"2\nprivate/2/CURRENT crc32 7\n", 4, MetaWhy::File),
    (b"2\nprivate/01/CURRENT crc32 7\n", 4, MetaWhy::File),
    (b"2\nprivate/1/000007.sst crc32 7\n", 4, MetaWhy::File),
    (b"2\nprivate/1/000007.dbtmp crc32 7\n", 4, MetaWhy::File),
    (
        b"3\nprivate/1/CURRENT crc32 7\nprivate/1/MANIFEST-000001 crc32 0\nshared_checksum/000004_s0123456789ABCDEFGHIJ_130.sst crc32 4294967296\n",
        6,
        MetaWhy::File,
    ),
    (b"2\nprivate/1/CURRENT crc32 07\n", 4, MetaWhy::File),
    (b"2\nprivate/1/CURRENT  crc32 7\n", 4, MetaWhy::File),
    (
        b"2\nprivate/1/CURRENT crc32 7\nshared_checksum/000004_s0123456789ABCDEFGHIJ_130.sst crc32 1\n",
        5,
        MetaWhy::Set,
    ),
    (
        b"2\nprivate/1/MANIFEST-000001 crc32 0\nprivate/1/MANIFEST-000002 crc32 0\n",
        5,
        MetaWhy::Set,
    ),
    (
        b"4\nprivate/1/CURRENT crc32 7\nprivate/1/MANIFEST-000001 crc32 0\nshared_checksum/000004_s0123456789ABCDEFGHIJ_130.sst crc32 1\nshared_checksum/000004_s0123456789ABCDEFGHIJ_131.sst crc32 1\n",
        7,
        MetaWhy::Set,
    ),
];
