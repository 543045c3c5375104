//! What a client is asked to connect to.
ghost use Rattle.std.specs.Prelude.{◌≡◌, IfOk};
ghost use Rattle.wt_session.specs.ConnectOptions.{Options, bare_options};
ghost use Rattle.wt_wire.specs.HeaderList.{with_field};

use std::alloc::Global;
use std::marker::Model;
use wt_wire::error::OutOfMemory;
use wt_wire::header_list::HeaderList;
use wt_wire::text::Text;

/// What a client is asked to connect to: a URL, and header fields that its request carries beside
/// those that it has anyway. Contracts see the two.
///
/// The URL is read by the connect; here it is any text.
#[derive(Debug, Drop)]
pub struct ConnectOptions {
    url: Text,
    additional_headers: HeaderList,
}

impl Model for ConnectOptions {
    ghost use Rattle.wt_session.specs.ConnectOptions.{Options};

    ghost Value = { Options };

    ghost view = { λ options. record { url = options.url; headers = options.additional_headers } };
}

impl ConnectOptions {
    /// A builder with this URL and no additional header field.
    ///
    /// # Errors
    ///
    /// `OutOfMemory` where the copy of the URL found no memory.
    pub fn builder(alloc: Global, url: &str) -> Result<ConnectRequestBuilder, OutOfMemory>
        ensures { IfOk result (λ builder. builder ≡ bare_options url.now) }
    {
        Ok(ConnectRequestBuilder {
            options: ConnectOptions {
                url: Text::from_text(alloc, url)?,
                additional_headers: HeaderList::new(alloc),
            },
        })
    }

    /// Options with this URL and these additional header fields, with no memory taken.
    pub fn from_parts(url: Text, additional_headers: HeaderList) -> ConnectOptions
        ensures url { result.url ≡ url }
        ensures headers { result.headers ≡ additional_headers }
    {
        ConnectOptions {
            url,
            additional_headers,
        }
    }

    /// The URL and the additional header fields, with no memory taken.
    pub fn into_parts(self) -> (Text, HeaderList)
        ensures url { result.0 ≡ self.url }
        ensures headers { result.1 ≡ self.headers }
    {
        (self.url, self.additional_headers)
    }

    /// The URL.
    pub fn url(&self) -> &str
        ensures { result.now ≡ self.now.url }
    {
        self.url.as_str()
    }

    /// The additional header fields.
    pub fn additional_headers(&self) -> &HeaderList
        ensures { result.now ≡ self.now.headers }
    {
        &self.additional_headers
    }

    /// Options with the same URL and the same additional header fields.
    ///
    /// # Errors
    ///
    /// `OutOfMemory` where the copy found no memory.
    pub fn copy(&self) -> Result<ConnectOptions, OutOfMemory>
        ensures { IfOk result (λ options. options ≡ self.now) }
    {
        Ok(ConnectOptions {
            url: self.url.copy()?,
            additional_headers: self.additional_headers.copy()?,
        })
    }
}

/// A builder of what a client is asked to connect to. Contracts see what was built so far.
#[must_use]
#[derive(Debug, Drop)]
pub struct ConnectRequestBuilder {
    options: ConnectOptions,
}

impl Model for ConnectRequestBuilder {
    ghost use Rattle.wt_session.specs.ConnectOptions.{Options};

    ghost Value = { Options };

    ghost view = { λ builder. builder.options };
}

impl ConnectRequestBuilder {
    /// Adds a header field, in place of the one with an equal name.
    ///
    /// # Errors
    ///
    /// `OutOfMemory` where the field found no memory. The builder is then gone.
    pub fn add_header(
        mut self,
        key: &str,
        value: &str,
    ) -> Result<ConnectRequestBuilder, OutOfMemory>
        ensures url { IfOk result (λ builder. builder.url ≡ self.url) }
        ensures headers { IfOk result (λ builder. builder.headers ≡ with_field key.now value.now self.headers) }
    {
        self.options.additional_headers.set(key, value)?;
        Ok(self)
    }

    /// What was built.
    #[must_use]
    pub fn build(self) -> ConnectOptions
        ensures { result ≡ self }
    {
        self.options
    }
}

/// What says where a client is to connect to: options, a builder of them, or the text of a URL.
pub trait IntoConnectOptions {
    /// The options that it stands for.
    ghost options: { Self → Options };

    /// The options that it stands for.
    ///
    /// # Errors
    ///
    /// `OutOfMemory` where a copy found no memory; only the text of a URL is copied.
    fn into_options(self, alloc: Global) -> Result<ConnectOptions, OutOfMemory>
        ensures { IfOk result (λ made. made ≡ options self) };
}

impl IntoConnectOptions for ConnectOptions {
    ghost options = { λ given. given };

    fn into_options(self, _alloc: Global) -> Result<ConnectOptions, OutOfMemory> {
        Ok(self)
    }
}

impl IntoConnectOptions for ConnectRequestBuilder {
    ghost options = { λ builder. builder };

    fn into_options(self, _alloc: Global) -> Result<ConnectOptions, OutOfMemory> {
        Ok(self.build())
    }
}

/// The text of a URL stands for options with no additional header field.
impl IntoConnectOptions for &str {
    ghost options = { λ url. bare_options url.now };

    fn into_options(self, alloc: Global) -> Result<ConnectOptions, OutOfMemory> {
        Ok(ConnectOptions::builder(alloc, self)?.build())
    }
}
