//! Texts of the worked examples.

/// The metadata of *first line*.
pub const FIRST_JSON: &str = "{\"name\":\"a\",\"vers\":\"0.1.0\"}";

/// The publish body of *first line*: its metadata and an empty archive.
pub const FIRST_BODY: &[u8] = b"\x1b\0\0\0{\"name\":\"a\",\"vers\":\"0.1.0\"}\0\0\0\0";

/// The line of *first line*, without its line feed.
pub const FIRST_LINE: &str =
    "{\"cksum\":\"e3b0c44298fc1c149afbf4c8996fb92427ae41e4649b934ca495991b7852b855\",\"deps\":[],\
    \"features\":{},\"links\":null,\"name\":\"a\",\"rust_version\":null,\"vers\":\"0.1.0\",\
    \"yanked\":false}";

/// The SHA-256 of no bytes.
pub const NO_BYTES_DIGEST: &str =
    "e3b0c44298fc1c149afbf4c8996fb92427ae41e4649b934ca495991b7852b855";

/// The SHA-256 of `abc`, the first token's text (FIPS 180-4's example of one block).
pub const ABC_DIGEST: &str = "ba7816bf8f01cfea414140de5dae2223b00361a396177a9cb410ff61f20015ad";

/// The second token's text (FIPS 180-4's example of two blocks).
pub const SECOND_TOKEN: &str = "abcdbcdecdefdefgefghfghighijhijkijkljklmklmnlmnomnopnopq";

/// The SHA-256 of the second token's text.
pub const SECOND_TOKEN_DIGEST: &str =
    "248d6a61d20638b8e5c026930c3e6039a33ce45964ff2167f6ecedd419db06c1";

/// The metadata of *renamed dependency*.
pub const RENAMED_JSON: &str =
    "{\"name\":\"acme-net\",\"vers\":\"1.0.0-rc.1\",\"deps\":[{\"name\":\"serde\",\
    \"version_req\":\"^1.0\",\"features\":[\"derive\"],\"optional\":true,\
    \"default_features\":false,\"target\":null,\"kind\":\"normal\",\"registry\":null,\
    \"explicit_name_in_toml\":\"codec\"}],\"features\":{\"std\":[],\"wire\":[\"dep:codec\"]},\
    \"rust_version\":\"1.70\"}";

/// The line of *renamed dependency* with the archive `abc`, without its line feed.
pub const RENAMED_LINE: &str =
    "{\"cksum\":\"ba7816bf8f01cfea414140de5dae2223b00361a396177a9cb410ff61f20015ad\",\
    \"deps\":[{\"default_features\":false,\"features\":[\"derive\"],\"kind\":\"normal\",\
    \"name\":\"codec\",\"optional\":true,\"package\":\"serde\",\"registry\":null,\"req\":\"^1.0\",\
    \"target\":null}],\"features\":{\"std\":[]},\"features2\":{\"wire\":[\"dep:codec\"]},\
    \"links\":null,\"name\":\"acme-net\",\"rust_version\":\"1.70\",\"v\":2,\
    \"vers\":\"1.0.0-rc.1\",\"yanked\":false}";
